// What a rule does when it fires.
use crate::class::Class;
use crate::place::Place;
use values::value::Value;

// A constant, or a variable by its number in the rule.
#[derive(Clone, Copy)]
pub enum Term {
    Constant(Value),
    Variable(Place),
}

// The value that a field gets.
#[derive(Clone, Copy)]
pub struct Setting {
    pub field: Place,
    pub value: Term,
}

// Elements are named by the unnegated conditions that they passed, counted from 1. Settings are made in text order.
#[derive(Drop)]
pub enum Action {
    Make(Class, Vec<Setting>),
    Modify(usize, Vec<Setting>),
    Remove(usize),
    Halt,
}
