// The values of two slots are compared.
ghost use Rattle.std.specs.Prelude.{◌≡◌, not};
ghost use Rattle.words.specs.Word.{word};
ghost use Rattle.layout.specs.Line.{line_a, line_b};
ghost use Rattle.layout.specs.Record.{value_of};
ghost use Rattle.layout.specs.Fault.{fault_of};
ghost use Rattle.layout.specs.inner.Inside.{SlotInside};
ghost use Rattle.cut_counts.specs.Maps.{same_bytes};

use layout_code::value::value_word;
use layout_fields_code::fields::slot_length;

// Has slot s of the first image another value than slot t of the second? Their records have no fault.
pub fn values_differ(first: &[u8], s: usize, second: &[u8], t: usize, l: usize) -> bool
    requires sound { SlotInside first.now l s × SlotInside second.now l t
        × (fault_of l (line_a (word first.now) s) (line_b (word first.now) s) ≡ 0)
        × (fault_of l (line_a (word second.now) t) (line_b (word second.now) t) ≡ 0) }
    ensures result { result ≡ not (same_bytes (value_of l (line_a (word first.now) s) (line_b (word first.now) s))
        (value_of l (line_a (word second.now) t) (line_b (word second.now) t))) }
{
    let size = slot_length(first, l, s);
    if size != slot_length(second, l, t) {
        return true;
    }
    for i in 0..size.div_ceil(8) {
        if value_word(first, l, s, i) != value_word(second, l, t, i) {
            return true;
        }
    }
    false
}
