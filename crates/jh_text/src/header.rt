//! The first line of a journal's text, which tells its form.
ghost use Rattle.std.specs.Prelude.{◌≡◌, ◌++◌, OnOk};
ghost use Rattle.jh_text.specs.Text.{header, header_lines, form_of, body_of};

use crate::reader::Reader;
use jh_history::Form;
use jh_num::NoMemory;

/// Passes over the header of a whole text, where it has one, and tells its form.
pub(crate) fn pass_header(text: &mut Reader) -> Form
    ensures form { result ≡ form_of text.old }
    ensures left { text.new ≡ body_of text.old }
{
    if text.pass("jailhouse journal 2\n") {
        Form::Two
    } else {
        Form::One
    }
}

/// Puts the header of the form at the end.
pub(crate) fn push_header(text: &mut Vec<u8>, form: Form) -> Result<(), NoMemory>
    ensures { OnOk result (text.new.items ≡ text.old.items ++ header form) }
{
    match form {
        Form::One => Ok(()),
        Form::Two => {
            text.extend_from_slice("jailhouse journal 2\n".as_bytes())?;
            Ok(())
        }
    }
}

/// The form of a text, which the text alone tells: it is Two exactly where the text begins with the header.
pub fn form_of(text: &[u8]) -> Form
    ensures { result ≡ form_of text.now }
{
    pass_header(&mut Reader::new(text))
}

/// How many lines the header has in a text of the form.
pub fn header_lines(form: Form) -> u32
    ensures { result ≡ header_lines form }
{
    match form {
        Form::One => 0,
        Form::Two => 1,
    }
}
