// Inner. The cases A to P of the rules as one table, each from the bytes of its description and its row to the whole answer, and the fact that the table holds.
// It has no function: the definitions of parse_qrydsc, of the row call and of the decimal call answer, and those calls promise these definitions.
#![tactic(auto)]
