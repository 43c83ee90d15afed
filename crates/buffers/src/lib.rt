// Weak buffers: the states of weak indexes, and what is proved of them once for all. `states` has the types; what they mean
// and the rule that they serve stand in specs/; the lemmas in proofs/ are those that the crate `feature_filter` rests on.
#![tactic(auto)]

ghost use Rattle.buffers.specs.Rules.{FeatureRuleIsFair};

pub mod states;

// The call runs nothing: its promise is the law.
pub fn feature_rule_is_fair()
    ensures { FeatureRuleIsFair }
{}
