// The base driver over lists: what it holds, its steps, and that they keep the driver rules. The code that
// keeps these lists in logs and a queue is in the crate above.
#![tactic(auto)]

ghost use Rattle.basis.specs.Steps.{KeepRules};

pub fn steps_keep_rules()
    ensures { KeepRules }
{}
