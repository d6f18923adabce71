//! The rows of a script. Read next: `row`.
ghost use Rattle.std.specs.Prelude.{◌≡◌, IfErr, IfOk, Ok};
ghost use Rattle.tc_address.specs.declared.count.Count.{Count};
ghost use Rattle.chase_script.specs.Script.{script_in};
ghost use Rattle.chase_script.specs.Answer.{AreRowsFor, IsRefusal};

use crate::fault::{RowFault, ScriptFault};
use crate::row::{ScriptRow, row_in};
use csv::{ByteRecord, ErrorKind, ReaderBuilder};
use std::alloc::{AllocError, Global};
use tc_address::Count;

/// The rows of a script, in memory.
pub type Script = Vec<ScriptRow>;

/// Reads the rows of a script, with the labels of a count. The first refused record is named, with its
/// least refused column.
pub fn script_rows(alloc: Global, bytes: &[u8], count: Count) -> Result<Script, ScriptFault>
    ensures reads { IfOk result (λ script. script_in count bytes.now ≡ Ok script.items) }
    ensures refuses { IfErr result (λ fault. IsRefusal (script_in count bytes.now) fault) }
    ensures fits { IfOk result (λ script. AreRowsFor count script.items) }
{
    let mut reader = ReaderBuilder::new()
        .has_headers(false)
        .flexible(true)
        .from_reader(alloc, bytes);
    let mut rows = Vec::new(alloc);
    let mut fields = ByteRecord::new(alloc);
    'records: for _record in 0..u64::MAX {
        // Records of any length are accepted, as bytes, and read from memory: only memory can run out.
        let found = match reader.read_byte_record(&mut fields) {
            Ok(found) => found,
            Err(error) => match error.kind() {
                ErrorKind::Io(_) | ErrorKind::OutOfMemory => {
                    return Err(ScriptFault::Memory(AllocError));
                }
                ErrorKind::UnequalLengths { .. } => unreachable!(),
                ErrorKind::Utf8 { .. } => unreachable!(),
                ErrorKind::Serialize(_) | ErrorKind::Deserialize { .. } => unreachable!(),
            },
        };
        if !found {
            return Ok(rows);
        }
        match row_in(count, &fields) {
            Ok(row) => {
                if rows.push(row).is_err() {
                    return Err(ScriptFault::Memory(AllocError));
                }
            }
            Err(column) => {
                let row = rows.len() as u64 + 1;
                return Err(ScriptFault::Row(RowFault { row, column }));
            }
        }
    }
    Err(ScriptFault::Memory(AllocError))
}
