mod attacks;
mod commands;
mod executing;
mod failing;
mod images;
