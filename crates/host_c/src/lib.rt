// The exports for C: each is the function of its name in the crate host, with the same clauses.
#![tactic(auto)]

ghost use Rattle.std.specs.Prelude.{◌≡◌};
ghost use Rattle.host.specs.Exports.{unpack_number, unpack_fields};

// Answers 0 and writes kind, width, d, a, b, home and imm into `fields`, as many as it has room for; or answers the
// refusal's number and writes nothing. A number stands for the Result, as the C interface needs.
#[unsafe(no_mangle)]
pub extern "C" fn nadvoszip_unpack(word: u64, fields: &mut [u64]) -> u64
    ensures number { result ≡ unpack_number word }
    ensures fields { fields.new ≡ unpack_fields word fields.old }
{
    host::nadvoszip_unpack(word, fields)
}
