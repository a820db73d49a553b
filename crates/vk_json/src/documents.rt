ghost use Rattle.std.specs.Prelude.{◌≡◌, ℕ, List, Ok};
ghost use Rattle.serde_json.specs.Data.{Data};
ghost use Rattle.serde_json.specs.Read.{read};
ghost use Rattle.vk_spec.specs.Reading.{Gives, or_fault};
ghost use Rattle.vk_base.specs.Stops.{fault_in};
ghost use Rattle.vk_json.specs.declared.faults.Why.TheVariants as why;
ghost use Rattle.vk_json.specs.DocumentView.{doc_data};
ghost use Rattle.vk_json.specs.Documents.{json_of, without_mark};
ghost use Rattle.vk_json.specs.KeyOrders.{KeysAscend};
ghost use Rattle.vk_json.specs.Places.{here};
ghost use Rattle.vk_json.specs.Standing.{Leads};
ghost use Rattle.vk_json.specs.Values.{view};

use crate::faults::{FileFault, Why};
use crate::numbers::are_in_range;
use crate::places::wrong;
use json::{Error, Reader, Scratch, Value};
use std::alloc::Global;
use vk_base::{Memory, Unread};

// How deep lists and objects may nest.
const MAX_DEPTH: usize = 127;

/// A JSON document that was read. Its texts are borrowed from the bytes, those with escapes from
/// the scratch.
#[derive(Drop)]
pub struct Doc<'a> {
    value: Value<'a>,
}

impl<'a> Doc<'a> {
    /// Reads a document; one leading byte order mark is passed over. The fault is `Json` at the
    /// whole, exactly where the bytes are no JSON (RFC 8259), nest deeper than 127 or have a number
    /// beyond every float.
    pub fn read(
        alloc: Global,
        bytes: &'a [u8],
        scratch: &'a mut Scratch,
    ) -> Result<Doc<'a>, Unread<FileFault>>
        ensures { Gives doc_data fault_in result (json_of bytes.now) }
    {
        match simdutf8::compat::from_utf8(without_mark(bytes)) {
            Ok(text) => read_text(alloc, text, scratch),
            Err(_) => Err(wrong(alloc, Why::Json)),
        }
    }

    /// The value that was read.
    pub fn value(&self) -> &Value<'a>
        ensures { view result.now ≡ doc_data self.now }
    {
        &self.value
    }
}

fn read_text<'a>(
    alloc: Global,
    text: &'a str,
    scratch: &'a mut Scratch,
) -> Result<Doc<'a>, Unread<FileFault>>
    ensures { Gives doc_data fault_in result (or_fault (here why.Json) (read text.now)) }
{
    let mut reader = Reader::new(text, scratch)?;
    let value = match Value::read(alloc, &mut reader, MAX_DEPTH) {
        Ok(value) => value,
        Err(Error::OutOfMemory) => return Err(Unread::Memory(Memory::without_allocation())),
        Err(_) => return Err(wrong(alloc, Why::Json)),
    };
    if reader.next().is_some() || !are_in_range(&value) {
        return Err(wrong(alloc, Why::Json));
    }
    Ok(Doc { value })
}

// The bytes after a byte order mark, if they begin with one.
fn without_mark(bytes: &[u8]) -> &[u8]
    ensures { result.now ≡ without_mark bytes.now }
{
    match bytes {
        [0xEF, 0xBB, 0xBF, rest @ ..] => rest,
        _ => bytes,
    }
}

/// In a document, the keys of each object ascend, whatever their order in the bytes was.
pub fn document_keys()
    ensures { (bytes place : List ℕ) (d found : Data) →
        json_of bytes ≡ Ok d → Leads place d found → KeysAscend found }
{}
