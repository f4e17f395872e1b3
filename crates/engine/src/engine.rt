// The engine: a search, or none before the first load, and what every call keeps true of it.
ghost use Rattle.std.specs.Option.{ForSome};
ghost use Rattle.state.specs.Model.{Paced};
ghost use Rattle.state.specs.Searches.{model};

use state::search::Search;

#[derive(Drop)]
pub struct Engine {
    pub(crate) search: Option<Search>,
    ghost paced: { ForSome search (λ s. Paced (model s)) },
}
