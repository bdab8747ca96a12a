// Wide sheets that the checker converts, writes and makes; no code (specs/Claims.antt).
#![tactic(auto)]
