// A line and the fields in it.
ghost use Rattle.std.specs.Prelude.{◌≡◌, [], ◌++◌, map, IfOk, OnOk};
ghost use Rattle.lines.specs.Fields.{begins, ended, fields_of, line_text, parting, without_final};

use std::alloc::{AllocError, Global};

// Blanks, tabs and commas part the fields of a line.
pub fn parts_fields(byte: u8) -> bool
    ensures { result ≡ parting byte }
{
    byte == b' ' || byte == b'\t' || byte == b','
}

// A line without the line feed at its end and one carriage return before it.
pub fn without_end(line: &[u8]) -> &[u8]
    ensures { result.now ≡ line_text line.now }
{
    without_last(without_last(line, b'\n'), b'\r')
}

fn without_last(line: &[u8], byte: u8) -> &[u8]
    ensures { result.now ≡ without_final byte line.now }
{
    line.strip_suffix(&[byte]).unwrap_or(line)
}

// Whether the first byte is this one.
pub fn begins_with(text: &[u8], byte: u8) -> bool
    ensures { result ≡ begins byte text.now }
{
    text.first() == Some(&byte)
}

// The fields of a line: its longest runs of bytes that part no fields.
// The library's `split` would tell of its parts only that no byte in them parts fields, and not that they are all.
pub fn part(heap: Global, line: &[u8]) -> Result<Vec<&[u8]>, AllocError>
    ensures { IfOk result (λ v. map (λ x. x.now) v.items ≡ fields_of line.now) }
{
    let mut fields = Vec::new(heap);
    let mut start = 0;
    for (i, byte) in line.iter().enumerate() {
        if parts_fields(*byte) {
            end_field(&mut fields, &line[start..i])?;
            start = i + 1;
        }
    }
    end_field(&mut fields, &line[start..])?;
    Ok(fields)
}

// Adds a field that has ended, unless it is empty.
fn end_field<'a>(fields: &mut Vec<&'a [u8]>, field: &'a [u8]) -> Result<(), AllocError>
    ensures { OnOk result (map (λ x. x.now) fields.new.items ≡ map (λ x. x.now) fields.old.items ++ ended field.now []) }
{
    if !field.is_empty() {
        fields.push(field)?;
    }
    Ok(())
}
