// The words of a text, borrowed from it.
ghost use Rattle.std.specs.Prelude.{◌≤◌, length};

// A number's form, another word, or the text's end, each with its place.
#[derive(Clone, Copy, Debug)]
pub enum Word<'a> {
    Number(&'a [u8], usize),
    Name(&'a [u8], usize),
    End(usize),
}

// Stays (rule): a reader is a lent text and a place in it.
// A walk over the words of a text that is lent.
#[derive(Drop)]
pub struct Reader<'a> {
    pub(crate) text: &'a [u8],
    pub(crate) pos: usize,
    ghost within: { pos ≤ length text.now },
}
