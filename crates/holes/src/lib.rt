// No code: specs/NanInUpdate.antt says what happens to a controller when an update brings NaN, specs/HoleInTrace.antt what is printed after a hole of the recorder, specs/DtZeroInTrace.antt what a lane whose sample time is zero prints.
#![tactic(auto)]
