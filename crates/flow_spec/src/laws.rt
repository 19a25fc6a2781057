// What holds of the order of configurations, and of programs of words.
ghost use Rattle.std.specs.Prelude.{◌≡◌, ◌⊎◌, ◌↔◌, ℕ, ◌^◌, ◌<◌, option_map};
ghost use Rattle.std.specs.declared.cmp.Ordering.TheVariants.{Less, Equal, Greater};
ghost use Rattle.elf_spec.specs.Image.{Image};
ghost use Rattle.elf_spec.specs.Word.{word_at, has_word};
ghost use Rattle.riscv_spec.specs.declared.parcel.Isa.TheVariants.{Rv32i};
ghost use Rattle.flow_spec.specs.declared.instruction.Instruction.TheVariants.{Word};
ghost use Rattle.flow_spec.specs.Configuration.{Configuration};
ghost use Rattle.flow_spec.specs.Instruction.{is_text, instruction_at, address_after, parts_at};
ghost use Rattle.flow_spec.specs.Transfer.{before, first_half, second_half, is_good_next};
ghost use Rattle.flow_spec.specs.Order.{configuration_cmp};
ghost use Rattle.flow_spec.specs.Before.{IsBefore};

/// What holds of the order of configurations: one is less than another exactly where it comes before it, by address, at
/// one address by the open calls from the oldest on, and with the same calls by part; greater exactly where the other
/// comes before it; and equal exactly where both are the same. So of any two one comes first or they are the same, and
/// what comes before one comes before all that this one comes before.
pub fn order_laws()
    ensures less { (c d : Configuration) → (configuration_cmp c d ≡ Less) ↔ IsBefore c d }
    ensures equal { (c d : Configuration) → (configuration_cmp c d ≡ Equal) ↔ (c ≡ d) }
    ensures greater { (c d : Configuration) → (configuration_cmp c d ≡ Greater) ↔ IsBefore d c }
    ensures decided { (c d : Configuration) → IsBefore c d ⊎ ((c ≡ d) ⊎ IsBefore d c) }
    ensures transitive { (c d e : Configuration) → IsBefore c d → IsBefore d e → IsBefore c e }
{}

/// A program of RV32I is one of words: its text and its instructions are the words, each fetched in one part, a pair is a
/// word and the one before it, and control may go on to the next word wherever there is one.
pub fn rv32i_laws()
    ensures text { (image : Image) (at : ℕ) → is_text Rv32i image at ≡ has_word image at }
    ensures instruction { (image : Image) (at : ℕ) → instruction_at Rv32i image at ≡ option_map Word (word_at image at) }
    ensures parts { (image : Image) (line at : ℕ) → parts_at Rv32i image line at ≡ 1 }
    ensures first { (image : Image) (at : ℕ) → first_half Rv32i image at ≡ word_at image (before at) }
    ensures second { (image : Image) (at : ℕ) → second_half Rv32i image at ≡ word_at image at }
    ensures next { (image : Image) (at word : ℕ) → at < 2 ^ 32
        → is_good_next Rv32i image at (address_after at (Word word)) ≡ has_word image (address_after at (Word word)) }
{}
