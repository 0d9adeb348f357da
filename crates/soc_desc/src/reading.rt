//! From a text to a description.
ghost use Rattle.std.specs.Prelude.{◌≡◌, ◌≢◌, Ok, Err, IfOk, IfErr};
ghost use Rattle.serde_json.specs.View.{view};
ghost use Rattle.soc_desc.specs.Checks.{Gives};
ghost use Rattle.soc_desc.specs.Described.{described, checked, value_of};
ghost use Rattle.soc_desc.specs.Accepted.{IsAccepted};
ghost use Rattle.soc_desc.specs.declared.fault.DescFault.TheVariants as fault;

use crate::description::Description;
use crate::fault::DescFault;
use crate::geometry::geometry;
use crate::path::Path;
use crate::shape::root;
use crate::totals::within_limits;
use serde_json::Value;
use std::alloc::Global;

/// How many octets a text may have.
const MOST_OCTETS: usize = 1_048_576;

/// Reads a description, a JSON text of at most 1,048,576 octets.
///
/// Four stages of checks follow one another: the text, the shape of its objects, where items and ROMs stand on each
/// bus, and the totals. The first rule that is broken is the fault; `NoMemory` can come in place of any answer.
pub fn read(alloc: Global, text: &[u8]) -> Result<Description, DescFault>
    ensures ok { IfOk result (λ d. described text.now ≡ Ok d) }
    ensures fault { IfErr result (λ e. e ≢ fault.NoMemory → described text.now ≡ Err e) }
    ensures accepted { IfOk result IsAccepted }
{
    let value = value_of(alloc, text)?;
    checked(alloc, &value)
}

/// The JSON value of a text.
fn value_of(alloc: Global, text: &[u8]) -> Result<Value, DescFault>
    ensures { Gives view result (value_of text.now) }
{
    if text.len() > MOST_OCTETS {
        return Err(DescFault::TooMany(Path::root(alloc)));
    }
    match Value::from_slice(alloc, text) {
        Ok(value) => Ok(value),
        Err(error) => {
            if error.is_memory() {
                Err(DescFault::NoMemory)
            } else {
                Err(DescFault::NotJson)
            }
        }
    }
}

fn checked(alloc: Global, value: &Value) -> Result<Description, DescFault>
    ensures found { Gives (λ d. d) result (checked (view value.now)) }
    ensures accepted { IfOk result IsAccepted }
{
    let description = root(alloc, &Path::root(alloc), value)?;
    let path = Path::root(alloc).key(alloc, "bus")?;
    geometry(alloc, &path, &description.bus)?;
    within_limits(alloc, &path, &description.bus)?;
    Ok(description)
}
