// Pieces that several prints have.
ghost use Rattle.std.specs.Prelude.{◌≡◌, cond, []};
ghost use Rattle.print_forms.specs.Prints.{caption, indent, numbered};
ghost use Rattle.buffers.specs.Printed.{Printed};

use buffers::put::{put, put_number};

// What stands above causes, if there are any.
pub(crate) fn caption_over(has_causes: bool) -> &'static str
    ensures { result.now ≡ cond has_causes caption [] }
{
    if has_causes { "\n\nCaused by:" } else { "" }
}

// Puts what begins the line of a cause.
pub(crate) fn put_indent(out: &mut [u8], at: usize) -> usize
    ensures { Printed at result out.old out.new indent }
{
    put(out, at, b"\n    ")
}

// Puts the number of a cause.
pub(crate) fn put_label(out: &mut [u8], at: usize, number: usize) -> usize
    ensures { Printed at result out.old out.new (numbered number) }
{
    let at = put_number(out, at, number);
    put(out, at, b": ")
}
