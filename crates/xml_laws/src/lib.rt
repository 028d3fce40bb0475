// A text to XML and back, and what XML says to text and back: laws of the two conversions, X15 of docs/RULES.md. No code.
#![tactic(auto)]
