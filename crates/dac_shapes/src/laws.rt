//! Laws of the grammar's limits, as the contract of an empty function.

ghost use Rattle.std.specs.Prelude.{◌≡◌, ◌↔◌, List};
ghost use Rattle.dac_shapes.specs.Written.{Section};
ghost use Rattle.dac_shapes.specs.Limits.{MaySections, nothing, steps, with_section};
ghost use Rattle.dac_shapes.specs.Within.{AreWithinLimits, nodes_in};

/// Sections keep the limits exactly if, in the order of the text, each item is allowed after those before it. The nodes
/// met in this order are the distinct names in the sections, in order of first occurrence.
pub fn limits_in_text_order()
    ensures order { (sections : List Section) → (MaySections sections ↔ AreWithinLimits sections) }
    ensures nodes { (sections : List Section)
        → (steps with_section nothing sections).met ≡ nodes_in sections }
{}
