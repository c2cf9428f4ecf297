// No code: for every public function of the crates below two wrong answers, and that its contract rules them out (docs/SETTLED.md); and that
// each refusal is given exactly if docs/RULES.md, 2.1 says so.
#![tactic(auto)]
