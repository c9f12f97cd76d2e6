// Charts as text (document 02, request iv): the grammar, what a text says and what its reading answers, in specs/; theorems in proofs/. No code is in it.
#![tactic(auto)]
