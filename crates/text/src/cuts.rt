//! A text cut at a byte.
ghost use Rattle.text.specs.Cuts.{CutAt};

/// The text in front of its first `byte`, and what follows that byte, if the text has one.
pub(crate) fn cut(text: &[u8], byte: u8) -> (&[u8], Option<&[u8]>)
    ensures { CutAt byte text.now result.0.now result.1 }
{
    match text.iter().position(|b| *b == byte) {
        Some(at) => (&text[..at], Some(&text[at + 1..])),
        None => (text, None),
    }
}
