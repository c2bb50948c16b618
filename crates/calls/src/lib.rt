// No code: what each exported call promises. specs/Words.antt has the eight words of an answer, specs/Calls.antt the promises.
#![tactic(auto)]
