// What the programs write on standard output: the bytes are defined in specs/, and held by examples in proofs/. The code is `print_lines`,
// `print_answers` and `resolve_lines`.
#![tactic(auto)]
