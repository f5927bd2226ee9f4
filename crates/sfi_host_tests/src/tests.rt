mod adding;
mod consoles;
mod entering;
mod guests;
mod stopping;
mod texts;
mod worlds;
