// What no clause says: that the calls succeed, worked rows, and a crash at each call.
mod behind;
mod served;
mod texts;
mod title;
