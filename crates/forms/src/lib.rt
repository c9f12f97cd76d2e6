// Forms of text, and readers of them by tables: definitions and theorems only, for any form. No grammar is in it.
#![tactic(auto)]
