// What holds of arguments in plain form.
ghost use Rattle.std.specs.Prelude.{◌≡◌, ◌↔◌, ℕ, List, ◌∷◌, Some, None, map, IsTrue, Contains};
ghost use Rattle.command_spec.specs.Plain.{OptionKind, has_option, is_plain, value_of};
ghost use Rattle.command_spec.specs.Options.{AreOptions, Given, arguments_of, given, names_in};
ghost use Rattle.command_spec.specs.Commands.{name_of, options_of};
ghost use Rattle.command_spec.specs.Texts.{pairs_of};
ghost use Rattle.command_spec.specs.Settings.{settings_in, settings_of};
ghost use Rattle.command_spec.specs.Right.{AreRight};
ghost use Rattle.command_spec.specs.Worked.{worked_none, worked_other, worked_plain};

use crate::{Command, Settings};

/// Arguments are in plain form exactly where they are how some options of the command are written, in any order and none
/// of them twice; and these options are read back, each with its value.
pub fn options_laws()
    ensures plain { (kinds : List OptionKind) (arguments : List (List ℕ)) → IsTrue (is_plain kinds arguments)
        ↔ ((options : List Given) × AreOptions kinds options × (arguments ≡ arguments_of options)) }
    ensures value { (kinds : List OptionKind) (options : List Given) (name value : List ℕ) → AreOptions kinds options
        → (value_of kinds name (arguments_of options) ≡ Some value) ↔ Contains options (given name value) }
    ensures has { (kinds : List OptionKind) (options : List Given) (name : List ℕ) → AreOptions kinds options
        → IsTrue (has_option kinds name (arguments_of options)) ↔ Contains (names_in options) name }
{}

/// Arguments in plain form whose values are spelled and ranged as their options' rules say always give settings, and these
/// are read off the pairs.
pub fn plain_laws()
    ensures { (command : Command) (options : List Given) → AreOptions (options_of command) options → AreRight options
        → (settings : Settings) × (settings_of (name_of command ∷ arguments_of options) ≡ Some settings)
        × (settings_in (pairs_of command (arguments_of options)) ≡ Some settings) }
{}

/// The settings of command lines that were worked out by hand.
pub fn worked_lines()
    ensures plain { map (λ row. settings_of row.0) worked_plain ≡ map (λ row. row.1) worked_plain }
    ensures other { map (λ row. settings_of row.0) worked_other ≡ map (λ row. row.1) worked_other }
    ensures none { map settings_of worked_none ≡ map (λ words. None) worked_none }
{}
