//! Texts that are written one after another.
ghost use Rattle.tool_io.specs.Texts.{concat_texts, text_if};
ghost use Rattle.tool_io.specs.Writes.{Writes};
ghost use Rattle.std.specs.Prelude.{◌≡◌};

use pcre_io::{IoError, Sink, write_all};

/// Writes texts one after another. Where a write is refused, a part of them was written.
pub fn write_texts<O: Sink>(out: &mut O, texts: &[&[u8]]) -> Result<(), IoError>
    ensures { Writes (concat_texts texts.now) (O.tells out.old) (O.tells out.new) result }
{
    for text in texts {
        write_all(out, text)?;
    }
    Ok(())
}

/// A text, or the empty one.
pub fn text_if(is_there: bool, text: &[u8]) -> &[u8]
    ensures { result.now ≡ text_if is_there text.now }
{
    if is_there { text } else { b"" }
}
