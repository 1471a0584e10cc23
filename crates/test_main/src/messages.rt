//! What is said of a script that isn't run to its end.
ghost use Rattle.std.specs.Prelude.{◌++◌, codes, decimal};
ghost use Rattle.test_main.specs.ToolText.{banner, message_on};
ghost use Rattle.tool_io.specs.Texts.{line};
ghost use Rattle.tool_io.specs.Writes.{Writes};

use itoa::Buffer;
use pcre_io::{IoError, Sink};
use test_script::TestPlan;
use tool_io::{text_if, write_texts};

/// Writes the banner, unless it isn't wanted.
pub fn write_banner<O: Sink>(out: &mut O, plan: &TestPlan) -> Result<(), IoError>
    ensures { Writes (banner plan.now) (O.tells out.old) (O.tells out.new) result }
{
    write_texts(out, &[text_if(!plan.quiet, b"PCRE2 8-bit profile\n\n")])
}

/// Writes what is said of a script by its name.
pub fn write_message<E: Sink>(err: &mut E, name: &str, text: &[u8]) -> Result<(), IoError>
    ensures { Writes (line (message_on name.now text.now)) (E.tells err.old) (E.tells err.new)
        result }
{
    write_texts(err, &[b"pcre2test: ", name.as_bytes(), b": ", text, b"\n"])
}

/// Writes that a line is too long.
pub fn write_too_long<E: Sink>(err: &mut E, name: &str, number: u64) -> Result<(), IoError>
    ensures { Writes (line (message_on name.now (codes "line " ++ (decimal number
        ++ codes " is too long")))) (E.tells err.old) (E.tells err.new) result }
{
    let mut shown = Buffer::new();
    write_texts(
        err,
        &[
            b"pcre2test: ",
            name.as_bytes(),
            b": line ",
            shown.format(number).as_bytes(),
            b" is too long\n",
        ],
    )
}
