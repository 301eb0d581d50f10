// Refusals and warnings as numbers and places, by the definitions of `format`.
#![tactic(auto)]

ghost use Rattle.std.specs.Prelude.{◌≡◌};
ghost use Rattle.format.specs.Refusals.{reported};
ghost use Rattle.format.specs.Warnings.{warned};

use format::header::{Warning, WarningCode, WarningReport};
use format::refusal::{Refusal, Report};

// A refusal's number and place. Ruled out: two numbers exchanged, the place left out.
pub fn report_refusal(refusal: Refusal) -> Report
    ensures { result ≡ reported refusal }
{
    match refusal {
        Refusal::Truncated(at) => Report {
            number: 1,
            place: Some(at),
        },
        Refusal::Overflow => Report {
            number: 2,
            place: None,
        },
        Refusal::VarintOverflow => Report {
            number: 3,
            place: None,
        },
        Refusal::Signature(at) => Report {
            number: 4,
            place: Some(at),
        },
        Refusal::Version(at) => Report {
            number: 5,
            place: Some(at),
        },
        Refusal::LuacData(at) => Report {
            number: 6,
            place: Some(at),
        },
        Refusal::InstructionSize(at) => Report {
            number: 7,
            place: Some(at),
        },
        Refusal::LuaIntegerSize(at) => Report {
            number: 8,
            place: Some(at),
        },
        Refusal::LuaNumberSize(at) => Report {
            number: 9,
            place: Some(at),
        },
        Refusal::LuacInt(at) => Report {
            number: 10,
            place: Some(at),
        },
        Refusal::LuacNum(at) => Report {
            number: 11,
            place: Some(at),
        },
        Refusal::ConstantTag(at) => Report {
            number: 12,
            place: Some(at),
        },
        Refusal::StringBytes(at) => Report {
            number: 13,
            place: Some(at),
        },
        Refusal::Instructions(at) => Report {
            number: 14,
            place: Some(at),
        },
        Refusal::TotalInstructions(at) => Report {
            number: 15,
            place: Some(at),
        },
        Refusal::Constants(at) => Report {
            number: 16,
            place: Some(at),
        },
        Refusal::Upvalues(at) => Report {
            number: 17,
            place: Some(at),
        },
        Refusal::Prototypes(at) => Report {
            number: 18,
            place: Some(at),
        },
        Refusal::NestingDepth(at) => Report {
            number: 19,
            place: Some(at),
        },
        Refusal::TotalPrototypes(at) => Report {
            number: 20,
            place: Some(at),
        },
        Refusal::LimitAboveCeiling => Report {
            number: 21,
            place: None,
        },
        Refusal::InputBytes => Report {
            number: 22,
            place: None,
        },
        Refusal::NoFunction => Report {
            number: 23,
            place: None,
        },
        Refusal::NoEntry => Report {
            number: 24,
            place: None,
        },
        Refusal::LineTooLarge => Report {
            number: 25,
            place: None,
        },
        Refusal::LentSpace => Report {
            number: 26,
            place: None,
        },
        Refusal::FieldRange => Report {
            number: 27,
            place: None,
        },
        Refusal::NoOpcode => Report {
            number: 28,
            place: None,
        },
        Refusal::AnchorOrder => Report {
            number: 29,
            place: None,
        },
        Refusal::PcOrder => Report {
            number: 30,
            place: None,
        },
        Refusal::Format(at) => Report {
            number: 31,
            place: Some(at),
        },
        Refusal::IntOverflow(at) => Report {
            number: 32,
            place: Some(at),
        },
        Refusal::NullString(at) => Report {
            number: 33,
            place: Some(at),
        },
    }
}

// A warning's code and place. Ruled out: the two codes exchanged, a place of 0.
pub fn report_warning(warning: Warning) -> WarningReport
    ensures { result ≡ warned warning }
{
    match warning {
        Warning::NonStandardFormat(place) => WarningReport {
            code: WarningCode::L54Header003,
            place: place,
        },
        Warning::TrailingBytes(place) => WarningReport {
            code: WarningCode::L54Chunk001,
            place: place,
        },
    }
}
