// Images of 512 bytes that the checker reads and walks; no code (specs/Claims.antt).
#![tactic(auto)]
