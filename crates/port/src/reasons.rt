// Which standing rule any bytes break, for the port, a debugger and the port's tests. Every input is taken.
ghost use Rattle.std.specs.Prelude.{◌≡◌};
ghost use Rattle.std.specs.Option.{unwrap_or};
ghost use Rattle.why.specs.Tests.{reason};
ghost use Rattle.port.specs.Why.{reason_of};

use why::Reason;

// A standing rule's number and that of the first record that breaks it; 0 and 0 for none.
#[repr(C)]
#[derive(Clone, Copy)]
pub struct NtkReason {
    pub rule: u32,
    pub number: u32,
}

// What is no rule's number: the length is wrong.
const WRONG_LENGTH: u32 = 0xFF;

impl From<Option<Reason>> for NtkReason {
    ghost from_gives = { λ x y. let r = unwrap_or x (reason 0 0) in (y.rule ≡ r.rule) × (y.number ≡ r.number) };

    fn from(found: Option<Reason>) -> NtkReason {
        match found {
            Some(reason) => NtkReason {
                rule: reason.rule,
                number: reason.number,
            },
            None => NtkReason { rule: 0, number: 0 },
        }
    }
}

// The first rule that any bytes break.
pub fn ntk_why(image: &[u8]) -> NtkReason
    ensures { (result.rule ≡ (reason_of image.now).rule) × (result.number ≡ (reason_of image.now).number) }
{
    let Some(image) = image.as_array() else {
        return NtkReason {
            rule: WRONG_LENGTH,
            number: 0,
        };
    };
    NtkReason::from(why::why(image))
}
