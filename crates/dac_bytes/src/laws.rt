//! The law of fields, as the contract of an empty function.
//!
//! A proof that needs it calls the function.
ghost use Rattle.std.specs.Prelude.{ℕ, ◌≤◌, ◌^◌};
ghost use Rattle.dac_bytes.specs.declared.version.Version.{Version};
ghost use Rattle.dac_bytes.specs.FieldCodecs.{FieldCodecs};

/// Fields have codecs: a value that is read is in range and has the bytes read as its spelling, and each value in range
/// is read from its spelling, whatever follows. Node numbers fit one byte.
pub fn fields_have_one_spelling()
    ensures { (version : Version) (nodes : ℕ) → nodes ≤ 2 ^ 8 → FieldCodecs version nodes }
{}
