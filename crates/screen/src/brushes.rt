// The brush: the attributes that written characters get.
ghost use Rattle.std.specs.Prelude.{◌≤◌};

use cells::attributes::are_attributes;
use faults::Fault;

// At most 15: the sum of 1 bold, 2 underlined, 4 blinking and 8 reverse.
#[derive(Clone, Copy)]
pub struct Brush {
    pub(crate) attributes: u8,
    ghost are: { attributes ≤ 15 },
}

impl Brush {
    ghost use Rattle.std.specs.Prelude.{◌≡◌, IfOk};
    ghost use Rattle.faults.specs.Refusals.{fault_of};
    ghost use Rattle.screen.specs.Refusals.{brush_refusal};

    // The brush with such attributes.
    pub(crate) fn of(attributes: u8) -> Result<Brush, Fault>
        ensures refusal { fault_of result ≡ brush_refusal attributes }
        ensures told { IfOk result (λ b. b.attributes ≡ attributes) }
    {
        if !are_attributes(attributes) {
            return Err(Fault::BadAttributes);
        }
        Ok(Brush { attributes })
    }
}
