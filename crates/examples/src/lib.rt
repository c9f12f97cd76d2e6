// The examples of documents 01 and 02, computed from the definitions: theorems only, in specs/. A crate of its own, since an edit that is to fail in the
// claims checks all of theirs again.
#![tactic(auto)]
