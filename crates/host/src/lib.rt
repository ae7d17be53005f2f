// What C is offered, over numbers and lent word slices; the exports stand in host_c. C keeps no promise, so nothing here
// asks for one.
#![tactic(auto)]

ghost use Rattle.std.specs.Prelude.{◌≡◌};
ghost use Rattle.host.specs.Exports.{over, unpack_number, unpack_fields};

use isa::codec::unpack;
use isa::fields::Fields;

// Writes the values over the front of the slice, as many as it has room for.
#[tactic(auto, using(crate::proofs::Fronts::over_front, crate::proofs::Fronts::over_none))]
fn fill(slice: &mut [u64], values: &[u64])
    ensures { slice.new ≡ over values.now slice.old }
{
    let count = slice.len().min(values.len());
    // no copy is called for where a caller only asks whether a word is an instruction
    if count > 0 {
        slice[..count].copy_from_slice(&values[..count]);
    }
}

// Answers 0 and writes kind, width, d, a, b, home and imm into `fields`, as many as it has room for; or answers the
// refusal's number and writes nothing. A number stands for the Result, as the C interface needs.
pub fn nadvoszip_unpack(word: u64, fields: &mut [u64]) -> u64
    ensures number { result ≡ unpack_number word }
    ensures fields { fields.new ≡ unpack_fields word fields.old }
{
    match unpack(word) {
        Ok(i) => {
            let f = Fields::from(i);
            fill(fields, &[f.kind, f.width, f.d, f.a, f.b, f.home, f.imm]);
            0
        }
        Err(refusal) => refusal.number(),
    }
}
