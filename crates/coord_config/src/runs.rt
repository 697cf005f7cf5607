//! Worked examples: functions without a body whose contracts state the results for some texts,
//! computed through the definitions.

ghost use Rattle.coord_config.specs.WorkedTexts.{GoodTexts, WrongKeys, WrongTexts, WrongValues};

/// Valid files are read as the topologies that they describe.
#[tactic(auto, using(crate::proofs::Computes::good_compute))]
pub fn good_texts()
    ensures { GoodTexts }
{}

/// Files with an unknown, a missing or an extra key are refused as `BadKey`.
#[tactic(auto, using(crate::proofs::Computes::keys_compute))]
pub fn wrong_keys()
    ensures { WrongKeys }
{}

/// Files with a value of a wrong type or out of range are refused as `BadValue`.
#[tactic(auto, using(crate::proofs::Computes::values_compute))]
pub fn wrong_values()
    ensures { WrongValues }
{}

/// Texts that are not TOML are refused as `NotToml`.
#[tactic(auto, using(crate::proofs::Computes::texts_compute))]
pub fn wrong_texts()
    ensures { WrongTexts }
{}
