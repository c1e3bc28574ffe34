// The drill's definitions and their laws: no code. The parser is crate `wire`, the calls `drill_calls`, the run `drill_log`.
#![tactic(auto)]
