mod generating;
mod lines;
