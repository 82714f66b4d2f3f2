// Writing files: files of several shapes come back byte for byte, workloads come back whole,
// and each refusal leaves the buffer as it was.
mod refusals;
mod shapes;
mod trips;
