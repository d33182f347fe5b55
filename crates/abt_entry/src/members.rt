//! Members of objects, and whole objects on lines of their own.
ghost use Rattle.std.specs.Prelude.{◌≡◌, ◌∷◌, ◌++◌, [], OnOk, IfOk};
ghost use Rattle.json.specs.Print.{print};
ghost use Rattle.json.specs.Token.{end_object, key, string};
ghost use Rattle.abt_rate.specs.Code.{code_of};
ghost use Rattle.abt_text.specs.Text.{◌⋅◌, newline, code_text};
ghost use Rattle.abt_entry.specs.ObjectMembers.{Adds, Holds, text_member, number_member, rate_member};

use abt_rate::Rate;
use abt_text::HexCode;
use json::Writer;
use std::alloc::{AllocError, Global};
use std::mem;

/// Begins an object behind the octets of a text, which it takes until the object's end.
pub fn begin(alloc: Global, text: &mut Vec<u8>) -> Result<Writer, AllocError>
    ensures { IfOk result (λ writer. Holds text.old.items [] writer) }
{
    let taken = mem::replace(text, Vec::new(alloc));
    let mut writer = Writer::new(taken);
    writer.begin_object()?;
    Ok(writer)
}

/// Ends an object and its line, and gives the octets back to the text.
pub fn end(writer: Writer, text: &mut Vec<u8>) -> Result<(), AllocError>
    ensures { OnOk result
        (text.new.items ≡ (writer.before ++ print (writer.tokens ++ end_object ∷ [])) ⋅ newline) }
{
    let mut writer = writer;
    writer.end_object()?;
    let mut octets = writer.into_inner();
    octets.extend_from_slice(b"\n")?;
    *text = octets;
    Ok(())
}

/// Adds a member with a text.
pub fn push_text(writer: &mut Writer, name: &str, text: &str) -> Result<(), AllocError>
    ensures { OnOk result (Adds (text_member name.now text.now) writer.old writer.new) }
{
    writer.key(name)?;
    writer.string(text)
}

/// Adds a member with a number.
pub fn push_number(writer: &mut Writer, name: &str, number: u64) -> Result<(), AllocError>
    ensures { OnOk result (Adds (number_member name.now number) writer.old writer.new) }
{
    writer.key(name)?;
    writer.u64(number)
}

/// Adds a member with the code of a rate.
pub fn push_rate(
    alloc: Global,
    writer: &mut Writer,
    name: &str,
    rate: Rate,
) -> Result<(), AllocError>
    ensures { OnOk result (Adds (rate_member name.now rate) writer.old writer.new) }
{
    writer.key(name)?;
    push_code(alloc, writer, rate)
}

/// Adds the code of a rate.
pub fn push_code(alloc: Global, writer: &mut Writer, rate: Rate) -> Result<(), AllocError>
    ensures { OnOk result (Adds (string (code_text (code_of rate)) ∷ []) writer.old writer.new) }
{
    let code = HexCode(rate.code());
    let code = format!(in alloc; "{code}")?;
    writer.string(code.as_str())
}
