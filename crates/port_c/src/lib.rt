// The functions of `port` as C calls them: a static library is no library for other crates, so each export here calls the library's function of
// the same name and promises what that promises.
#![tactic(auto)]

ghost use Rattle.std.specs.Prelude.{◌≡◌};
ghost use Rattle.port.specs.Field.{read_of};
ghost use Rattle.port.specs.Step.{version, Freshened, Stepped, ServedPlainly};
ghost use Rattle.port.specs.Why.{reason_of};

use port::NtkOutcome;
use port::reasons::NtkReason;

#[unsafe(no_mangle)]
pub extern "C" fn ntk_version() -> u32
    ensures { result ≡ version }
{
    port::ntk_version()
}

// A call on any bytes.
#[unsafe(no_mangle)]
pub extern "C" fn ntk_step(
    kind: u8,
    a: u32,
    b: u32,
    c: u32,
    d: u32,
    e: u32,
    f: u32,
    image: &mut [u8],
) -> NtkOutcome
    ensures { Stepped kind a b c d e f image.old result.answer result.runs result.further image.new }
{
    port::ntk_step(kind, a, b, c, d, e, f, image)
}

// The same without the test of the table: for an image that this library alone has changed since `ntk_fresh` wrote it.
#[unsafe(no_mangle)]
pub extern "C" fn ntk_serve(
    kind: u8,
    a: u32,
    b: u32,
    c: u32,
    d: u32,
    e: u32,
    f: u32,
    image: &mut [u8],
) -> NtkOutcome
    ensures { ServedPlainly kind a b c d e f image.old result.answer result.runs result.further image.new }
{
    port::ntk_serve(kind, a, b, c, d, e, f, image)
}

// Any bytes become the image of the fresh table.
#[unsafe(no_mangle)]
pub extern "C" fn ntk_fresh(image: &mut [u8]) -> u32
    ensures { Freshened image.old result image.new }
{
    port::fresh::ntk_fresh(image)
}

// A field of any bytes.
#[unsafe(no_mangle)]
pub extern "C" fn ntk_read(field: u32, number: u32, image: &[u8]) -> u64
    ensures { result ≡ read_of field number image.now }
{
    port::read::ntk_read(field, number, image)
}

// The first rule that any bytes break.
#[unsafe(no_mangle)]
pub extern "C" fn ntk_why(image: &[u8]) -> NtkReason
    ensures { (result.rule ≡ (reason_of image.now).rule) × (result.number ≡ (reason_of image.now).number) }
{
    port::reasons::ntk_why(image)
}
