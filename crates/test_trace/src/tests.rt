mod projected;
mod traces;
