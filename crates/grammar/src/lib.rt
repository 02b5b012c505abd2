#![tactic(auto)]

// Books, their meaning and the theorems about them: definitions and laws alone, under specs/.
