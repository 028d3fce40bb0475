// The text that XML says is in plain form: X10 and X12 of docs/RULES.md. Laws, no code.
#![tactic(auto)]
