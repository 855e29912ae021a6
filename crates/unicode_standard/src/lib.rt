// Inner. Unicode text as the Unicode Standard defines it: definitions in specs/, laws about them in proofs/. It has no code: `utf` reads and
// writes by these definitions. Properties of characters, normalization and byte order marks are no part of it.
#![tactic(auto)]
