// Document 01, "The register": how it is laid out, which its tests 1 to 3 ask, and the fields of a source's entry.
#![tactic(auto)]

mod entry;
mod sources;

ghost use Rattle.std.specs.Prelude.{◌≡◌};
ghost use Rattle.basis.specs.Answers.{first_refusal};
ghost use Rattle.register_layout.specs.Layout.{layout_tests};

use answer::refuse_if;
use basis::Refusal;
pub use entry::{
    source_line_count, source_method, source_name_length, source_number, source_parameter,
};
use register_header::{SOURCES_AT, test_header};
use sources::test_sources;
pub use sources::{part, place_of_name};

// Tests 1 to 3.
pub fn test_layout(register: &[u8]) -> Result<(), Refusal>
    ensures { result ≡ first_refusal (layout_tests register.now) }
{
    refuse_if(register.len() < SOURCES_AT, 1, 0)?;
    test_header(register)?;
    test_sources(register)
}
