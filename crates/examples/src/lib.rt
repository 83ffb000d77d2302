// Document 01's marked examples and two closed runs are theorems about the definitions of `machine`, in specs/. There is no code here.
#![tactic(auto)]
