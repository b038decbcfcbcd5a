// The product's static library, which host/ and programs in C link. Each exported call is thin over a crate that does
// the work, and takes every argument. A slice comes as a pointer and a length.
#![tactic(auto)]

pub mod call;

ghost use Rattle.std.specs.Prelude.{◌≡◌, ◌^◌};
ghost use Rattle.names.specs.Names.{lookup, method_names, policy_names, interpolation_names, Below};
ghost use Rattle.dihyravo.specs.Answer.{named_answer};

use refusals::Refusal;

// A code, or minus the refusal's number.
fn number(r: Option<u64>) -> i64
    requires { Below (2 ^ 63) r }
    ensures { result ≡ named_answer r }
{
    match r {
        Some(n) => n as i64,
        None => -(Refusal::Code.number() as i64),
    }
}

// The code of a distortion method's name, or -3.
#[unsafe(no_mangle)]
pub extern "C" fn dihyravo_method(name: &[u8]) -> i64
    ensures { result ≡ named_answer (lookup method_names name.now) }
{
    number(names::method(name))
}

// The code of a virtual pixel policy's name, or -3.
#[unsafe(no_mangle)]
pub extern "C" fn dihyravo_policy(name: &[u8]) -> i64
    ensures { result ≡ named_answer (lookup policy_names name.now) }
{
    number(names::policy(name))
}

// The code of an interpolation's name, or -3.
#[unsafe(no_mangle)]
pub extern "C" fn dihyravo_interpolation(name: &[u8]) -> i64
    ensures { result ≡ named_answer (lookup interpolation_names name.now) }
{
    number(names::interpolation(name))
}
