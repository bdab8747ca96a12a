// Cards and sheets of version 1 that the checker reads, walks, writes and makes; no code (specs/Claims.antt).
#![tactic(auto)]
