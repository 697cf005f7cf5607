//! Worked examples of policy texts. Each is the contract of an empty function, computed from the definitions.

ghost use Rattle.proxy_policy.specs.WorkedTexts.{GoodTexts, WrongKeys, WrongTexts, WrongValues};

/// Texts that are valid policies.
#[tactic(auto, using(crate::proofs::Computes::good_compute))]
pub fn good_texts()
    ensures { GoodTexts }
{}

/// Texts with unknown keys, and one with a missing key.
#[tactic(auto, using(crate::proofs::Computes::keys_compute))]
pub fn wrong_keys()
    ensures { WrongKeys }
{}

/// Texts with values of the wrong type, unknown names, numbers out of range, and empty lists.
#[tactic(auto, using(crate::proofs::Computes::values_compute))]
pub fn wrong_values()
    ensures { WrongValues }
{}

/// A text that is not TOML.
#[tactic(auto, using(crate::proofs::Computes::texts_compute))]
pub fn wrong_texts()
    ensures { WrongTexts }
{}
