// No code: specs/Runs.antt says what a run of calls is, whatever is called, specs/WrittenRun.antt how a loop writes its answers down, and specs/Lanes.antt that lanes which do not see each other answer as each would by itself.
#![tactic(auto)]
